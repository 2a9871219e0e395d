//! The target's description.

use crate::text::TextBuffer;

const HEAD: &[u8] = b"<?xml version=\"1.0\"?><!DOCTYPE target SYSTEM \"gdb-target.dtd\">\
<target version=\"1.0\"><architecture>aarch64</architecture><osabi>GNU/Linux</osabi>\n";

const FLAGS: &[u8] =
    b"<flags id=\"cpsr_flags\" size=\"4\"><field name=\"V\" start=\"28\" end=\"28\"/>\
<field name=\"C\" start=\"29\" end=\"29\"/><field name=\"Z\" start=\"30\" end=\"30\"/>\
<field name=\"N\" start=\"31\" end=\"31\"/></flags>\n";

/// Appends the target's description: the registers in the order of `g`. Those of the feature
/// `tombolopan.tenant` are how many steps were done, and RGSR_EL1.
pub fn put_description(text: &mut TextBuffer) {
    text.put(HEAD);
    text.put(b"<feature name=\"org.gnu.gdb.aarch64.core\">\n");
    for number in 0..31 {
        text.put(b"<reg name=\"x");
        text.put_decimal(number);
        text.put(b"\" bitsize=\"64\"/>\n");
    }
    put_typed(text, b"sp", b"data_ptr");
    put_typed(text, b"pc", b"code_ptr");
    text.put(FLAGS);
    text.put(b"<reg name=\"cpsr\" bitsize=\"32\" type=\"cpsr_flags\"/></feature>\n");
    text.put(b"<feature name=\"org.gnu.gdb.aarch64.mte\">\n");
    put_system(text, b"tag_ctl");
    text.put(b"</feature>\n<feature name=\"tombolopan.tenant\">\n");
    put_system(text, b"step");
    put_system(text, b"rgsr");
    text.put(b"</feature></target>\n");
}

/// A register of 64 bits with a type.
fn put_typed(text: &mut TextBuffer, name: &[u8], kind: &[u8]) {
    text.put(b"<reg name=\"");
    text.put(name);
    text.put(b"\" bitsize=\"64\" type=\"");
    text.put(kind);
    text.put(b"\"/>\n");
}

/// A register of 64 bits that is the system's.
fn put_system(text: &mut TextBuffer, name: &[u8]) {
    text.put(b"<reg name=\"");
    text.put(name);
    text.put(b"\" bitsize=\"64\" type=\"uint64\" group=\"system\"/>\n");
}
