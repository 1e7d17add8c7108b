// The names of the kinds of identifier, as source 001 writes them.
#![tactic(auto)]

ghost use Rattle.std.specs.Prelude.{◌≡◌, ◌≤◌};
ghost use Rattle.kinds.specs.Names.{kind_name, put_answer, written_by, name_answer, name_output};

use answers::Refusal;

// The name of a kind, by its tag.
fn name_of(kind: u32) -> &'static str
    requires { (160 ≤ kind) × (kind ≤ 179) }
    ensures { result.now ≡ kind_name kind }
{
    match kind {
        160 => "local",
        161 => "gibbsq",
        162 => "gibbmt",
        163 => "giim",
        164 => "genbank",
        165 => "embl",
        166 => "pir",
        167 => "swissprot",
        168 => "patent",
        169 => "other",
        170 => "general",
        171 => "gi",
        172 => "ddbj",
        173 => "prf",
        174 => "pdb",
        175 => "tpg",
        176 => "tpe",
        177 => "tpd",
        178 => "gpipe",
        _ => "named-annot-track",
    }
}

// Writes a name into a range, and answers how many bytes it has.
fn put_name(name: &[u8], out: &mut [u8]) -> Result<usize, Refusal>
    ensures value { result ≡ put_answer name.now out.old }
    ensures out_after { out.new ≡ written_by result name.now out.old }
{
    if out.len() < name.len() {
        return Err(Refusal::NoRoom);
    }
    out[..name.len()].copy_from_slice(name);
    Ok(name.len())
}

// The name of a kind, by its tag, and how many bytes it has.
pub fn kind_name(kind: u32, out: &mut [u8]) -> Result<usize, Refusal>
    ensures value { result ≡ name_answer kind out.old }
    ensures out_after { out.new ≡ name_output kind out.old }
{
    if !(160..=179).contains(&kind) {
        return Err(Refusal::OutOfRange);
    }
    put_name(name_of(kind).as_bytes(), out)
}
