//! Stretches of pages: which pages are kept, and where.

ghost use Rattle.std.specs.Prelude.{◌≡◌, ◌≤◌, ◌<◌, ◌^◌, ℕ, length, slice_index_or, IfSome};
ghost use Rattle.x64_memory.specs.Stretches as spec;
ghost use Rattle.x64_memory.specs.Stretches.{AreOrdered, count_from};
ghost use Rattle.x64_memory.specs.declared.stretch.Stretch.{Stretch};

/// Pages whose numbers follow one another, kept one after another. A page's number is its address
/// divided by 4,096.
#[derive(Clone, Copy)]
pub struct Stretch {
    /// The number of the first page.
    pub first: u64,
    /// The number after that of the last page.
    pub end: u64,
    /// Where the first page is kept, among all pages.
    pub index: usize,
}

/// How many stretches end at a page or below it.
fn count_ended(stretches: &[Stretch], number: u64) -> usize
    requires { AreOrdered 0 0 stretches.now }
    ensures within { result ≤ length stretches.now }
    ensures below { (k : ℕ) (d : Stretch) → k < result
        → (slice_index_or stretches.now k d).end ≤ number }
    ensures later { (k : ℕ) (d : Stretch) → result ≤ k → k < length stretches.now
        → number < (slice_index_or stretches.now k d).end }
{
    stretches.partition_point(|s| s.end <= number)
}

/// Where the page of a number is kept; none where no stretch has it. The stretches are searched by
/// halves.
#[inline(never)]
pub fn index_of(stretches: &[Stretch], number: u64) -> Option<usize>
    requires ordered { AreOrdered 0 0 stretches.now }
    requires room { count_from 0 stretches.now < 2 ^ 64 }
    ensures value { result ≡ spec.index_of stretches.now number }
    ensures within { IfSome result (λ i. i < count_from 0 stretches.now) }
{
    let ended = count_ended(stretches, number);
    if ended >= stretches.len() {
        return None;
    }
    let stretch = stretches[ended];
    if number < stretch.first {
        return None;
    }
    Some(stretch.index + (number - stretch.first) as usize)
}

/// Where the page of a number is kept, as `index_of` says; the stretch that likely has it is asked
/// first.
#[inline(always)]
pub fn likely_index_of(stretches: &[Stretch], likely: usize, number: u64) -> Option<usize>
    requires ordered { AreOrdered 0 0 stretches.now }
    requires room { count_from 0 stretches.now < 2 ^ 64 }
    ensures value { result ≡ spec.index_of stretches.now number }
    ensures within { IfSome result (λ i. i < count_from 0 stretches.now) }
{
    if likely >= stretches.len() {
        return index_of(stretches, number);
    }
    let stretch = stretches[likely];
    if number < stretch.first || stretch.end <= number {
        return index_of(stretches, number);
    }
    Some(stretch.index + (number - stretch.first) as usize)
}
