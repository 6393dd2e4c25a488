// What posting an event answers.
use rules::account::Account;

#[derive(Clone, Copy, Debug, PartialEq, Eq)]
pub struct Posted {
    // where the event stands in the journal
    pub place: u32,
    pub account: Account,
    // in fen
    pub amount: u32,
}
