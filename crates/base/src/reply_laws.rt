//! Laws of lines that are counted, and of bytes in hexadecimal digits.
ghost use Rattle.std.specs.Prelude.{◌≡◌, ◌<◌, ◌≤◌, ◌+◌, ◌++◌, ℕ, List, length};
ghost use Rattle.base.specs.Lines.{line_count};
ghost use Rattle.base.specs.Hex.{hex_line, hex_text, row_count};

/// Bytes in hexadecimal digits begin with a line of the first 16, where there are 16.
pub fn full_rows()
    ensures { (row rest : List ℕ) → length row ≡ 16 → hex_text (row ++ rest) ≡ hex_line row ++ hex_text rest }
{}

/// The lines of a text in hexadecimal digits, each ended by LF, are as many as the rows of 16.
pub fn rows_are_counted()
    ensures { (bytes : List ℕ) → line_count (hex_text bytes) ≡ row_count bytes }
{}

/// Up to 16 bytes are one line.
pub fn last_row()
    ensures { (row : List ℕ) → 0 < length row → length row ≤ 16 → hex_text row ≡ hex_line row }
{}

/// Two texts, one behind the other, have the lines of both.
pub fn lines_add_up()
    ensures { (text more : List ℕ) → line_count (text ++ more) ≡ line_count text + line_count more }
{}
