// What the bytes are: a script has a party before each message, a stream has not.
#[derive(Clone, Copy, Debug, PartialEq, Eq)]
pub enum Form {
    Script,
    Stream,
}

// Whom an entry of this form is for.
#[derive(Clone, Copy, Debug, PartialEq, Eq)]
pub struct Addressee {
    pub form: Form,
    // the server is 0, and so is what a stream does not say: an Option would be Some in every script
    // and None in every stream, which the form says already
    pub who: u8,
}
