//! Texts that no program writes: an instruction whose target is a distance, and heap calls as C has
//! them.

use a64_decode::decode;
use a64_text::Text;
use scudo_heap::HeapCall;
use std::test::Fail;

/// Words whose target is written by its distance.
static BY_DISTANCE: [(u32, &str); 3] = [
    (0x1400_0004, "b .+0x10"),
    (0x54FF_FFE1, "b.ne .-0x4"),
    (0xF000_0001, "adrp x1, .+0x3000"),
];

/// Each call as C has it.
static CALLS: [(HeapCall, &str); 6] = [
    (HeapCall::Malloc { size: 24 }, "malloc(24)"),
    (
        HeapCall::Free {
            pointer: 0x0100_0000_1200_0010,
        },
        "free(0x100000012000010)",
    ),
    (HeapCall::Calloc { count: 3, size: 8 }, "calloc(3, 8)"),
    (
        HeapCall::Realloc {
            pointer: 0x1200_0010,
            size: 32,
        },
        "realloc(0x12000010, 32)",
    ),
    (
        HeapCall::Memalign {
            alignment: 64,
            size: 100,
        },
        "memalign(64, 100)",
    ),
    (HeapCall::UsableSize { pointer: 0 }, "usable_size(0x0)"),
];

#[test]
fn texts(rt: HostRuntime) -> Result<(), Fail> {
    for (word, expected) in BY_DISTANCE {
        let text = Text(decode(word).ok_or("an instruction")?);
        let written = format!(in rt.alloc(); "{text}")?;
        assert_eq!(rt; written.as_str(), expected);
    }
    for (call, expected) in CALLS {
        let written = format!(in rt.alloc(); "{call}")?;
        assert_eq!(rt; written.as_str(), expected);
    }
    Ok(())
}
