// Packets by the words of their bytes: four bytes of a file as one number, the first lowest.
ghost use Rattle.std.specs.Prelude.{◌≡◌, eqb};
ghost use Rattle.fields.specs.Number.{big, number};
ghost use Rattle.fields.specs.Written.{little_bytes};
ghost use Rattle.packets.specs.Runs.{inner};

use crate::{amino_fault, nucleic_fault};
use fields::Order;

// 0 where the big-endian packet of a word may stand in a nucleic run before its last. No byte is turned, but the mask and the two bits are,
// so that a loop over such packets is nearly as fast as over little-endian ones.
fn turned_nucleic_fault(word: u32) -> u32
    ensures { eqb result 0 ≡ inner 1 (number big (little_bytes 4 word)) }
{
    let five = word / 64 % 2;
    (word & 0x10420821) * five | word / 128 % 2
}

// 0 where the packet of a word, in an order, may stand in a run before its last.
#[tactic(auto, using(crate::proofs::Faults::inner_nucleic))]
pub fn word_fault(order: Order, alphabet: u32, word: u32) -> u32
    ensures { eqb result 0 ≡ inner alphabet (number order (little_bytes 4 word)) }
{
    if residues::is_amino(alphabet) {
        return amino_fault(fields::number_by(order, word));
    }
    match order {
        Order::Big => turned_nucleic_fault(word),
        Order::Little => nucleic_fault(word),
    }
}
