//! What is written for a line.
ghost use Rattle.std.specs.Prelude.{◌≡◌};
ghost use Rattle.std.specs.List.{concat};
ghost use Rattle.workbench.specs.Views.{replies_of};

use crate::answers::Answer;

#[derive(Drop)]
pub enum Reply {
    Nothing,
    Fixed(&'static [u8]),
    Lines(Answer),
}

impl Reply {
    pub fn text(&self) -> &[u8]
        ensures { result.now ≡ concat (replies_of self.now) }
    {
        match self {
            Reply::Nothing => b"",
            Reply::Fixed(text) => text,
            Reply::Lines(answer) => answer.reply(),
        }
    }
}
