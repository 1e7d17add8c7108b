// Results in a lent range.
ghost use Rattle.std.specs.Prelude.{◌≡◌, ◌*◌, ◌≤◌, length};
ghost use Rattle.laws.specs.Writing.{written_at};
ghost use Rattle.console.specs.Results.{result_bytes, results_put};

use fields::{Order, Unsigned};

// Writes values at the start of a range that has room for them.
fn write_results(results: &mut [u8], values: &[u64])
    requires { 8 * length values.now ≤ length results.old }
    ensures { results.new ≡ written_at 0 (result_bytes values.now) results.old }
{
    for (k, value) in values.iter().enumerate() {
        value.put(Order::Little, results, 8 * k);
    }
}

// Writes values at the start of a results range, or nothing where it has no room for all of them.
pub fn put_results(results: &mut [u8], values: &[u64])
    ensures { results.new ≡ results_put values.now results.old }
{
    if results.len() / 8 < values.len() {
        return;
    }
    write_results(results, values);
}
