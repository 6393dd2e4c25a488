// The four layers: each stands on any rule, and is a rule again.
pub mod cap;
pub mod chapters;
pub mod grace;
pub mod season;
