//! The plain numbers of a record.

/// The numbers of one record, lawful or not: what stands at a place of any list of operations.
/// The item is a task, a lock or a location, by the code.
#[derive(Clone, Copy, PartialEq, Eq)]
pub struct Row {
    pub code: u8,
    pub thread: u8,
    pub item: u16,
    pub target: u8,
    pub marks: u8,
    pub reserved: u16,
    pub delay: u32,
}
