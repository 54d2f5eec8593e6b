// The six steps of the pool.

/// A step of worker `w`: it splits the node in its hand and puts the right part on its deque (`Push`) or on its local
/// stack (`Keep`), takes the front of its own deque (`Pop`), the top of its local stack (`TakeKept`) or the front of
/// another worker's deque (`Steal`), or enters the node in its hand as a leaf (`Enter`).
#[derive(Clone, Copy, PartialEq, Eq)]
pub enum Step {
    Push { w: u32 },
    Keep { w: u32 },
    Pop { w: u32 },
    TakeKept { w: u32 },
    Steal { w: u32, from: u32 },
    Enter { w: u32 },
}
