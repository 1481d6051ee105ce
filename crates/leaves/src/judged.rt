// What reading a value answers: the value, or its refusal with a place.
// Document 01, refusals 6, 9 and 10 of "Refusal numbers", and document 02, Four; what each case is in numbers is stated in specs/Shown.antt.

use paper::forms::Form;

// A value of a form that was read up to its end.
#[derive(Clone, Copy)]
pub struct Judged {
    pub form: Form,
    pub end: usize,
}
