// Two archives and the model at one desk: each turn goes to all three, and their answers are compared.

use crate::draw::{Source, same, twin};
use crate::model::Model;
use crate::tally::Tally;
use archive::archive::Archive;
use journal::Journal;
use keys::kind::Key;
use keys::translator::Translator;
use std::alloc::AllocError;

#[derive(Drop)]
pub struct Desk<T, K> {
    pub source: Source<K>,
    pub translator: T,
    pub model: Model,
    pub tally: Tally,
}

impl<T: Translator + Copy + Drop, K: Key + Copy + Drop> Desk<T, K> {
    fn step<J: Journal, I: Journal>(
        &mut self,
        archive: &mut Archive<J, T, K>,
        other: &mut Archive<I, T, K>,
    ) -> Result<(), AllocError> {
        let mut turn = self.source.draw(self.model.size)?;
        let mut second = twin(&turn)?;
        let mut mine = twin(&turn)?;
        archive.take(&mut turn);
        other.take(&mut second);
        self.model.take(&self.translator, &mut mine, turn.answer)?;
        self.tally.note(&turn);
        self.tally.judge(same(&turn, &second));
        self.tally.judge(same(&turn, &mine));
        Ok(())
    }

    /// So many turns, one after another.
    pub fn stretch<J: Journal, I: Journal>(
        &mut self,
        archive: &mut Archive<J, T, K>,
        other: &mut Archive<I, T, K>,
        count: u64,
    ) -> Result<(), AllocError> {
        for _ in 0..count {
            self.step(archive, other)?;
        }
        Ok(())
    }
}
