// What was done and compared.

#[derive(Clone, Copy, Debug, Default)]
pub struct Score {
    pub added: u64,
    pub refused: u64,
    pub opened: u64,
    pub taken: u64,
    pub taken_again: u64,
    pub strikes: u64,
    pub struck: u64,
    pub clears: u64,
    pub positions: u64,
    pub candidates: u64,
    pub answers: u64,
    pub wrong: u64,
}

pub fn bump(count: &mut u64) {
    *count = count.saturating_add(1);
}

impl Score {
    /// An answer of the index that was compared with the model's.
    pub fn judge(&mut self, right: bool) {
        bump(&mut self.answers);
        if !right {
            bump(&mut self.wrong);
        }
    }
}
