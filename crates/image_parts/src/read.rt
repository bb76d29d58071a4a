//! What was asked, and what was handed out.

ghost use Rattle.std.specs.Prelude.{◌≡◌};

use crate::content::PartContent;
use crate::part::Part;
use std::marker::Model;

/// A part that was asked for, with the content that was handed out.
#[derive(Drop)]
pub struct Read {
    part: Part,
    content: PartContent,
}

impl Model for Read {
    ghost use Rattle.std.specs.Coded.{codes, coded_ℕ, coded_list, coded×};
    ghost use Rattle.std.specs.FinMap as map;
    ghost use Rattle.co_dict.specs.contracts.entry.Entry as described;
    ghost use Rattle.co_dict.specs.Places.{place_cmp};
    ghost use Rattle.co_dict.specs.Shapes.{shaped_code};
    ghost use Rattle.image_parts.specs.Contents.{Content};
    ghost use Rattle.image_parts.specs.declared.part.Part.{Part as Name};

    ghost Value = { Name × Content };

    ghost coded = { Prim.hlevel (
      codes,
      map.code {R = place_cmp} (coded× coded_ℕ coded_ℕ) (coded_list coded_ℕ),
      shaped_code described.the_row.coded,
    ) };

    ghost view = { λ read. (read.part, read.content) };
}

impl Read {
    /// This part was asked for, and this is its content.
    pub fn new(part: Part, content: PartContent) -> Read
        ensures { result ≡ (part, content) }
    {
        Read { part, content }
    }

    /// The name of the part.
    pub fn part(&self) -> Part
        ensures { result ≡ self.now.0 }
    {
        self.part
    }

    /// The content that was handed out.
    pub fn content(&self) -> &PartContent
        ensures { result.now ≡ self.now.1 }
    {
        &self.content
    }
}
