use std::alloc::AllocError;

/// Memory ran out.
#[derive(Clone, Copy, Debug)]
pub struct TextMemory;

impl From<AllocError> for TextMemory {
    fn from(_fault: AllocError) -> TextMemory {
        TextMemory
    }
}
