//! What is wrong with the words of a call.

/// What is wrong with the words of a call: the first of these that holds.
#[derive(Clone, Copy, Debug, PartialEq, Eq)]
pub enum WordsFault {
    /// There are no words.
    NoVerb,
    /// The first word is no verb.
    UnknownVerb,
    /// The words after the verb are not in its form.
    Form,
    /// A number is not of its kind or range.
    Value,
    /// The mesh and the log would have one name.
    SameName,
}
