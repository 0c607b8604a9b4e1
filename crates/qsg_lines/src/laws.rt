//! What holds of the items of every script.

ghost use Rattle.std.specs.Prelude.{◌≡◌, ◌+◌, ◌∷◌, ◌++◌, List, ℕ, false, take, drop};
ghost use Rattle.qsg_lines.specs.Lines.{is_comment, sign_of};
ghost use Rattle.qsg_lines.specs.Items.{taken, statement_of, before, comments_from, items_from};

/// A statement comes before the comments among the lines that belong to it, and these come before whatever
/// begins behind those lines.
pub fn statements_stand_before_their_comments()
    ensures { (n : ℕ) (line : List ℕ) (lines : List (List ℕ)) → is_comment line ≡ false →
        let k = (taken (sign_of line) lines).lines in
        items_from n 0 (line ∷ lines) ≡ before (statement_of n line lines) (comments_from (n + 1) (take k lines) ++ items_from (n + 1 + k) 0 (drop k lines)) }
{}
