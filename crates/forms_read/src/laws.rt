//! Facts about forms, parsers and the calls of a handler. Each function does nothing: its contract is the fact.
ghost use Rattle.forms_read.specs.Examples.{EachExampleHolds};
ghost use Rattle.forms_read.specs.Laws.{EachFormIsRead, EachListIsRead, EachSentTextIsPrinted, EachSentFormIsReadable};
ghost use Rattle.forms_read.specs.CallLaws.{EachFormCalls, EachListCalls, EachWrittenFormCalls};
ghost use Rattle.forms_read.specs.Terminals.{EachFormIsStepped, EachListIsStepped, EachWrittenFormIsStepped};

/// A parser makes the form's events of the bytes of a form. After them it is at ground: outside of any character or
/// escape sequence.
pub fn forms_are_read()
    ensures { EachFormIsRead }
{}

/// After any bytes that leave a parser at ground, the bytes of a list of forms add the events of each form in turn.
/// After them the parser is at ground again.
pub fn lists_are_read()
    ensures { EachListIsRead }
{}

/// A parser prints each character of a cell's text (`texts`). So it reads each form that the writers send (`forms`).
pub fn sent_texts_are_printed()
    ensures texts { EachSentTextIsPrinted }
    ensures forms { EachSentFormIsReadable }
{}

/// Examples: the events of the bytes of some forms.
pub fn examples_hold()
    ensures { EachExampleHolds }
{}

/// For the events of a form, a processor makes the calls that `form_calls` lists. This holds whatever character was
/// printed last.
pub fn forms_call()
    ensures { EachFormCalls }
{}

/// For the events of a list of forms, a processor makes the calls that `form_calls` lists, one form after another.
pub fn lists_call()
    ensures { EachListCalls }
{}

/// For the bytes of a list of forms, a processor makes the calls that `form_calls` lists, one form after another. They
/// may follow any bytes that leave the parser at ground.
pub fn written_forms_call()
    ensures { EachWrittenFormCalls }
{}

/// A terminal that carries out each call as `ReadsCalls` says gives forms their effect: single forms, lists of forms,
/// and the bytes of lists.
pub fn terminals_read_forms()
    ensures forms { EachFormIsStepped }
    ensures lists { EachListIsStepped }
    ensures written_forms { EachWrittenFormIsStepped }
{}
