//! Facts about forms, and about states and views that read them. Each function does nothing: its contract is the fact.
ghost use Rattle.screen_view_laws.specs.StateLaws.{EachFormIsPlayed, EachListIsPlayed, EachWrittenFormIsMade};
ghost use Rattle.screen_view_laws.specs.StateLaws.{EachPlainStateIsRead};
ghost use Rattle.screen_view_laws.specs.StateLaws.{EachSentListIsPlayed, EachSentWrittenFormIsMade};
ghost use Rattle.screen_view_laws.specs.StateLaws.{EachFreshStateIsBlank};
ghost use Rattle.screen_view_laws.specs.Laws.{NewOnesAgree, EachWrittenFormIsAgreedOn, EachFeedIsAgreedOn};
ghost use Rattle.screen_view_laws.specs.Laws.{AgreeingModes};
ghost use Rattle.screen_view_laws.specs.Laws.{EachSentWrittenFormIsAgreedOn};

/// The test `is_plain` passes exactly for plain states: the states on which forms have their effect.
pub fn plain_states_are_read()
    ensures { EachPlainStateIsRead }
{}

/// A new state is plain, and shows a blank terminal.
pub fn fresh_states_are_blank()
    ensures { EachFreshStateIsBlank }
{}

/// The events of a form have the form's effect on what a plain state shows. The state keeps its size, and stays plain.
pub fn forms_are_played()
    ensures { EachFormIsPlayed }
{}

/// The events of a list of forms have the list's effect on what a plain state shows. The state keeps its size, and
/// stays plain.
pub fn lists_are_played()
    ensures { EachListIsPlayed }
{}

/// The bytes of a list of forms have the list's effect on what a plain state shows. They may follow any bytes that
/// leave the parser at ground (outside of a character or an escape sequence). The state keeps its size and stays plain,
/// and the parser is at ground again.
pub fn written_forms_are_made()
    ensures { EachWrittenFormIsMade }
{}

/// Texts of forms may have U+FE0F, which may make a cell of a state wide. After the events of such forms the state is
/// still plain and has its size. It has the modes and the cursor's style that the forms give.
pub fn sent_lists_are_played()
    ensures { EachSentListIsPlayed }
{}

/// The same holds after the bytes of forms whose texts may have U+FE0F, following any bytes that leave the parser at
/// ground. The state is still plain, has its size, and has the modes and the cursor's style that the forms give. The
/// parser is at ground again.
pub fn sent_written_forms_are_made()
    ensures { EachSentWrittenFormIsMade }
{}

/// A new state and a new view of the same size show the same.
pub fn new_ones_agree()
    ensures { NewOnesAgree }
{}

/// A plain state and a view that show the same also show the same after the bytes of any forms. This includes cells,
/// wrapped rows, the cursor and the saved cursor, attributes, modes and the cursor's style. Before the forms neither
/// may be inside a character or a sequence, and after them neither is.
pub fn written_forms_are_agreed_on()
    ensures states { EachWrittenFormIsAgreedOn }
    ensures parsers { EachFeedIsAgreedOn }
{}

/// A state and a view that show the same have the same modes and cursor style (`begin`). If a plain state and a view of
/// one size have the same modes and style, they still do after any forms (`keep`). The forms' texts may have U+FE0F.
pub fn sent_written_forms_are_agreed_on()
    ensures begin { AgreeingModes }
    ensures keep { EachSentWrittenFormIsAgreedOn }
{}
