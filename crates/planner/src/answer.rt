// What success tells. It has a module of its own, since a type `Plan` may not stand beside the function `plan`: their names differ only
// in the case of a letter.

// K, and the number of calls moved.
#[derive(Clone, Copy, Debug, PartialEq, Eq)]
pub struct Plan {
    pub count: usize,
    pub moved: usize,
}
