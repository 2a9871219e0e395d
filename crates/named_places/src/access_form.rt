//! The accesses of which variables are judged.

use a64_access::{AccessForm, AccessKind, AddressingMode};
use shadow_memory::Step;

/// How an instruction loads or stores registers by a base register, and no tag with them.
pub(crate) fn form_by_base(step: &Step<'_>) -> Option<AccessForm> {
    let form = step.form?;
    let is_plain = matches!(form.kind, AccessKind::Load | AccessKind::Store);
    let is_literal = matches!(form.mode, AddressingMode::Literal(_));
    if is_plain && !is_literal {
        Some(form)
    } else {
        None
    }
}
