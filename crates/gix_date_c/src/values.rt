//! What passes between C and the library: texts, times, statuses, and the places of refusals.
pub(crate) mod buffer;
pub(crate) mod refusal;
pub(crate) mod status;
pub(crate) mod store;
pub(crate) mod text;
pub(crate) mod time;
