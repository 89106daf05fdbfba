//! Worked examples of the definitions, each the contract of a function that does nothing.
#![tactic(auto, unfolding(crate::proofs::OnLiterals::on_literals))]

ghost use Rattle.std.specs.Prelude.{◌≡◌, ◌++◌, ◌∷◌, [], codes, length, Some, None, true, false};
ghost use Rattle.vt100_forms.specs.declared.attrs.Color.TheVariants.{Idx};
ghost use Rattle.vt100_forms.specs.declared.modes.CursorStyle.TheVariants as style;
ghost use Rattle.vt100_core.specs.Contents.{text_lines};
ghost use Rattle.screen_model.specs.Call as call;
ghost use Rattle.screen_model.specs.Made.{made, Fed, Resized};
ghost use Rattle.screen_model.specs.Step.{kept_shown, kept_dropped};
ghost use Rattle.screen_model.specs.Rows.{esc, shown_by, cell_shown, text_shown, calls_by, three_lines, red_word};
ghost use Rattle.screen_model.specs.Rows.{cut_red, on_alternate};

/// Calls for a style, a request for a size, and an unknown private mode.
pub fn requests_are_reported()
    ensures style { (shown_by 1 2 (esc (codes "[5 q"))).style ≡ style.BlinkVerticalBar }
    ensures size { calls_by 1 2 (esc (codes "[8;30;90t")) ≡ call.resize 30 90 ∷ [] }
    ensures unknown { calls_by 1 2 (esc (codes "[?7h")) ≡ call.unhandled_csi (Some 63) None ((7 ∷ []) ∷ []) 104 ∷ [] }
    ensures pieces { calls_by 1 2 (esc (codes "]2;a;b") ++ 7 ∷ [])
        ≡ call.unhandled_osc (codes "2" ∷ codes "a" ∷ codes "b" ∷ []) ∷ [] }
{}

/// A red word is drawn.
pub fn red_is_drawn()
    ensures { (cell_shown (shown_by 1 5 red_word) 0 3).attrs.fgcolor ≡ Idx 1 }
{}

/// One row is kept, shown and dropped.
pub fn row_is_kept()
    ensures kept { length (made 2 4 1 (Fed three_lines ∷ [])).shown.kept.rows ≡ 1 }
    ensures shown { text_lines (kept_shown 1 (made 2 4 1 (Fed three_lines ∷ []))).shown 2 ≡ codes "a" ++ 10
        ∷ codes "b" ++ 10 ∷ [] }
    ensures dropped { text_lines (kept_dropped (kept_shown 1 (made 2 4 1 (Fed three_lines ∷ [])))).shown 2 ≡ codes "b"
        ++ 10 ∷ codes "c" ++ 10 ∷ [] }
{}

/// A sequence with a resize in its middle takes effect after the resize.
pub fn events_stand_where_they_end()
    ensures text { text_shown (made 1 2 0 cut_red) 0 ≡ codes "A" }
    ensures red { (cell_shown (made 1 2 0 cut_red) 0 0).attrs.fgcolor ≡ Idx 1 }
    ensures width { (made 1 2 0 cut_red).shown.width ≡ 4 }
{}

/// On a screen that gets more rows, a blank row appears above for the one that scrolled off, since it wasn't kept.
pub fn rows_come_back()
    ensures cursor { (made 2 4 0 (Fed three_lines ∷ Resized 4 4 ∷ [])).shown.row ≡ 2 }
    ensures first { text_shown (made 2 4 0 (Fed three_lines ∷ Resized 4 4 ∷ [])) 0 ≡ [] }
    ensures second { text_shown (made 2 4 0 (Fed three_lines ∷ Resized 4 4 ∷ [])) 1 ≡ codes "b" }
{}

/// The alternate screen has a cursor of its own, and is blank when it is entered. When it is left the main one is as it
/// was, with its cursor.
pub fn main_sheet_comes_back()
    ensures alternate { text_shown (shown_by 1 4 on_alternate) 0 ≡ codes "c" }
    ensures main { text_shown (shown_by 1 4 (on_alternate ++ esc (codes "[?1049l"))) 0 ≡ codes "ab" }
    ensures cursor { (shown_by 1 4 (on_alternate ++ esc (codes "[?1049l"))).shown.col ≡ 2 }
{}
