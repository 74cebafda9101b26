//! Laws of whoever has the whole share, and of those who hold indices of a unique index set. `lock_free::laws` hands them on.

pub mod pools;
pub mod wholes;
