//! How many records there are to write: data records, and in all.
ghost use Rattle.std.specs.Prelude.{◌≡◌, ◌+◌, ◌≤◌, if◌then◌else◌};
ghost use Rattle.paper.specs.Sizes.{Shaped};
ghost use Rattle.paper.specs.Store.{records_for, count_of, lowers_of};

use paper::job::Job;
use paper::sizes::Sizes;

// How many records `size` bytes take.
pub fn records_for(z: Sizes, size: usize) -> usize
    requires { Shaped z }
    ensures { result ≡ records_for z size }
{
    size.div_ceil(z.l)
}

// How many data records a job has to write.
pub fn records(z: Sizes, j: Job) -> usize
    requires { Shaped z }
    ensures { result ≡ count_of z j }
{
    if j.saves { records_for(z, j.size) } else { 0 }
}

// How many make a job's change, of which `k` are data records: record 1, the index record, and for a clear that lowers U record 1 again.
pub fn change(j: Job, k: usize) -> usize
    requires { k ≤ 1000001 }
    ensures { result ≡ k + 2 + (if lowers_of j then 1 else 0) }
{
    if !j.saves && j.lowers { k + 3 } else { k + 2 }
}

// How many a job has to write in all: those, and zeros over each record of the old run.
pub fn total(j: Job, k: usize) -> usize
    requires { (k ≤ 1000001) × (j.many ≤ 1000001) }
    ensures { result ≡ k + 2 + (if lowers_of j then 1 else 0) + j.many }
{
    change(j, k) + j.many
}
