// How far a book has come.
use settlement::month::{OpenMonth, PublishedMonth};

#[derive(Drop)]
pub enum Stage {
    NoBook,
    Open(OpenMonth),
    Published(PublishedMonth),
}
