// The calls of a list, and room for their replies.
use basin::refusal::Refusal;

/// A call that changes a basin, with all that it takes. A step brings its own flow rule, and how many entries of the work table it takes.
#[derive(Clone, Copy)]
pub enum Call<R> {
    Pour { x: usize, y: usize, amount: u32 },
    Draw { x: usize, y: usize, amount: u32 },
    Settle { x: usize, y: usize },
    Step { time: u32, rule: R, entries: usize },
    Split { x: usize, y: usize },
    Merge { x: usize, y: usize },
}

/// A call of a list, and what it replied: its answer, or why it was refused.
#[derive(Clone, Copy)]
pub struct Entry<R> {
    pub call: Call<R>,
    pub reply: Result<u64, Refusal>,
}
