// The tokens of a whole text, however it was cut.
ghost use Rattle.std.specs.Prelude.{◌≡◌, ℕ, List, [], Bool};
ghost use Rattle.c65_lex.specs.Cells.{Cell, cells};
ghost use Rattle.c65_lex.specs.Next.{Next, IsNext, ended};
ghost use Rattle.c65_lex.specs.Text.{IsText, allows_header, nothing};
ghost use Rattle.c65_pieces.specs.Pieces.{Pieces, nothing_given, ahead_of};
ghost use Rattle.c65_pieces.specs.Runs.{Event, Run, AreReadByLines, bytes_given, tokens_taken, before_after};
ghost use Rattle.c65_pieces.specs.Lines.{IsNextByLines};

/// The tokens that are taken from a new lexer up to its end are those of all bytes that were given,
/// in whichever pieces they came.
pub fn anyhow_cut()
    ensures { (file : ℕ) (events : List Event) (last : Pieces) → Run IsNext nothing (nothing_given file) events last
        → IsNext (allows_header (before_after nothing events)) (ahead_of last []) ended
        → IsText (bytes_given events) (tokens_taken events) }
{}

/// The tokens that are taken, and what comes behind them, the refusal of a line that is too long too,
/// are those of all bytes that were given, read line by line, in whichever pieces they came; and a
/// text has one token, end or refusal at most there.
pub fn anyhow_cut_by_lines()
    ensures read { (file : ℕ) (events : List Event) (last : Pieces) (next : Next) → Run IsNextByLines nothing (nothing_given file) events last
        → IsNextByLines (allows_header (before_after nothing events)) (ahead_of last []) next
        → AreReadByLines nothing (cells 1 0 (bytes_given events)) (tokens_taken events) next }
    ensures one { (header : Bool) (text : List Cell) (a b : Next) → IsNextByLines header text a → IsNextByLines header text b → a ≡ b }
{}
