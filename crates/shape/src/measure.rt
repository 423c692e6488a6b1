// How many processes and how much room in a queue: what fixes every place of a table.
ghost use Rattle.std.specs.Prelude.{◌≤◌, ◌≡◌, IfOk};
ghost use Rattle.words.specs.Layout.{most_processes, most_capacity, record_width, record_place, table_length};
ghost use Rattle.words.specs.Outcomes.{size_of};

use crate::places;
use refusal::Refusal;

/// The most processes of a ring.
pub const MOST_PROCESSES: usize = 16;

/// The most messages of a queue.
pub const MOST_CAPACITY: u32 = 16;

/// The words of the largest table.
pub const MOST_WORDS: usize = places::TABLE_HEAD
    + MOST_PROCESSES * (places::RECORD_HEAD + places::SLOT * (MOST_CAPACITY as usize));

/// The words of a record, at any capacity.
pub fn width(capacity: u32) -> usize
    ensures { result ≡ record_width capacity }
{
    places::RECORD_HEAD + places::SLOT * (capacity as usize)
}

/// The words of a table of so many processes at a capacity: refused as `Shape::new` is.
pub fn size(processes: usize, capacity: u32) -> Result<usize, Refusal>
    ensures { result ≡ size_of processes capacity }
{
    Ok(Shape::new(processes, capacity)?.words())
}

/// Processes and capacity, in range.
#[derive(Clone, Copy, Debug, PartialEq, Eq)]
pub struct Shape {
    pub processes: u32,
    pub capacity: u32,
    ghost some_processes: { 1 ≤ processes },
    ghost few_processes: { processes ≤ most_processes },
    ghost some_capacity: { 1 ≤ capacity },
    ghost small_capacity: { capacity ≤ most_capacity },
}

impl Shape {
    ghost use Rattle.shape.specs.Sized.{size_told};

    /// The shape of a table: refused 1 where the processes are out of range, then 2 where the capacity is.
    pub fn new(processes: usize, capacity: u32) -> Result<Shape, Refusal>
        ensures size { size_told result ≡ size_of processes capacity }
        ensures shape { IfOk result (λ s. (s.processes ≡ processes) × (s.capacity ≡ capacity)) }
    {
        if processes == 0 || MOST_PROCESSES < processes {
            return Err(Refusal::Count);
        }
        if capacity == 0 || MOST_CAPACITY < capacity {
            return Err(Refusal::Capacity);
        }
        Ok(Shape {
            processes: processes as u32,
            capacity,
        })
    }

    /// The words of a record.
    pub fn width(self) -> usize
        ensures { result ≡ record_width self.capacity }
    {
        width(self.capacity)
    }

    /// Where record j begins; at `processes`, where the table ends.
    pub fn place(self, j: u32) -> usize
        ensures { result ≡ record_place self.capacity j }
    {
        places::TABLE_HEAD + (j as usize) * self.width()
    }

    /// The words of the table.
    pub fn words(self) -> usize
        ensures { result ≡ table_length self.processes self.capacity }
    {
        self.place(self.processes)
    }
}
