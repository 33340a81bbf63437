//! The used number: the highest slot with a scan, looked for from the top down and no further than it has to be.
#![tactic(auto)]

ghost use Rattle.std.specs.Prelude.{◌≡◌, true, ◌+◌, ◌≤◌, max};
ghost use Rattle.paper.specs.Sizes.{capacity_of};
ghost use Rattle.paper.specs.Store.{highest};
ghost use Rattle.entries.specs.Row.{Bare};

use entries::file::File;

// How far the slots from slot `top` down to slot `s` are empty, eight at a time: so are most of those above U. A `while`, since a last part of a group is not leapt over.
fn past_empty(file: File, top: usize, s: usize) -> usize
    requires { (top ≤ capacity_of file.z) × (s ≤ capacity_of file.z) }
    ensures { Bare file.entry.bytes.now file.entry.z result top }
{
    let mut i = top;
    while s + 8 <= i {
        if !file.all_empty::<8>(i - 8) {
            return i;
        }
        i -= 8;
    }
    i
}

// The highest slot with a scan, slot `s` counted, where none above slot `top` has one.
pub fn highest_to(file: File, top: usize, s: usize) -> usize
    requires bare { Bare file.bytes.now file.z top (capacity_of file.z) }
    requires s_bound { s ≤ capacity_of file.z }
    ensures { result ≡ max (highest file.entry.bytes.now file.entry.z) s }
{
    let from = past_empty(file, top, s);
    for t in (s + 1..from + 1).rev() {
        let a = file.run_at(t);
        if !entries::entry::empty(a) {
            return t;
        }
    }
    s
}

// The same of any index, judged or not: the slots above U are looked at too.
pub fn highest(file: File, s: usize) -> usize
    requires { s ≤ capacity_of file.z }
    ensures { result ≡ max (highest file.entry.bytes.now file.entry.z) s }
{
    let top = file.z.capacity();
    highest_to(file, top, s)
}
