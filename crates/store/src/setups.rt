// Giving a store its code.
ghost use Rattle.std.specs.Prelude.{[]};
ghost use Rattle.store.specs.Stripes.{set_up};
ghost use Rattle.store.specs.Told.{Told};

use crate::store::Store;
use crate::types::{Answer, Refusal};
use blocks::code::Code;
use room::space::space;
use site::SiteMap;

impl<M: SiteMap> Store<M> {
    /// Sets the code up, once, where the map has space for it.
    pub fn set_up(&mut self, n: u32, k: u32, c: u32) -> Result<Answer, Refusal>
        ensures { Told (M.meaning self.old.map) self.old self.new (set_up n k c) result [] [] }
    {
        if self.code.is_some() {
            return Err(Refusal::SetUpBefore);
        }
        let code = Code::new(n, k, c).ok_or(Refusal::OutsideLimits)?;
        if space(&self.map, c) < n {
            return Err(Refusal::SpaceBelowN);
        }
        self.code = Some(code);
        Ok(Answer::Done)
    }
}
