//! Laws of the commands: what is printed is read.
ghost use Rattle.std.specs.Prelude.{◌≡◌, ◌∷◌, ◌++◌, ℕ, List, Ok, length};
ghost use Rattle.base.specs.Lines.{lines_of, line_count};
ghost use Rattle.project_edits.specs.declared.edit.Edit.{Edit};
ghost use Rattle.project_edits.specs.declared.edit.Edit.TheVariants.{Eds};
ghost use Rattle.script_commands.specs.Requests.{request};
ghost use Rattle.project_edits.specs.Eds.{IsEds, eds_edit};
ghost use Rattle.project_edits.specs.Edits.{IsEdit};
ghost use Rattle.project_edits.specs.Lines.{line_of, text_of, block_of};
ghost use Rattle.script_commands.specs.Asked.{asks};

/// The line of each edit is read as that edit; that of an EDS asks for its lines.
pub fn printed_lines_are_read()
    ensures { (edit : Edit) → IsEdit edit → request (line_of edit) ≡ Ok (asks edit) }
{}

/// The lines of an EDS are as many as its line says, and with its name they are that edit.
pub fn printed_blocks_are_read()
    ensures { (name text : List ℕ) → IsEds name text
        → (length (lines_of text) ≡ line_count text) × (eds_edit name (lines_of text) ≡ Ok (Eds name text)) }
{}

/// An edit as text, whatever follows it, has the line of the edit, and then the lines of its block.
pub fn printed_edits_are_lines()
    ensures { (edit : Edit) (rest : List ℕ) → IsEdit edit
        → lines_of (text_of edit ++ rest) ≡ (line_of edit ∷ lines_of (block_of edit)) ++ lines_of rest }
{}
