//! The kinds that are checked of a tenant.

use crate::kind_words::{CheckKind, CheckKinds};

impl CheckKinds {
    /// Those that a text names, with commas between them; all but `places` and `arithmetic` by
    /// `all`. `None` where a word is no kind.
    pub fn parse(text: &str) -> Option<CheckKinds> {
        let mut kinds = CheckKinds::NONE;
        for word in text.split(',') {
            kinds = if word == "all" {
                kinds.with_all()
            } else {
                kinds.with(CheckKind::of(word)?)
            };
        }
        Some(kinds)
    }

    /// Whether none is.
    pub fn is_none(self) -> bool {
        self == CheckKinds::NONE
    }
}
