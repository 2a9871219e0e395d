//! Which source files are a library's: by directories of their paths, as DWARF names them.

use debug_lines::SourceLine;

/// What the paths of sources begin with which the C and C++ libraries of tenants were built from:
/// examples/libc/build.py names them so.
static BEGINNINGS: [&str; 9] = [
    "musl",
    "compiler-rt",
    "llvm",
    "tenant/src",
    "tenant/src_cxx",
    "tenant/arch",
    "tenant/include",
    "tenant/out",
    "/rustc",
];

/// Directories and files of headers and sources that are compiled with a program: those of the C++
/// library, of Rust's library, and of a tenant's services.
static PARTS: [&str; 9] = [
    "include_cxx",
    "include/c++",
    "include/bits",
    "ctype.h",
    "library/core/src",
    "library/alloc/src",
    "library/std/src",
    "tenant.h",
    "tenant.rs",
];

/// Whether the file of a source line is a library's.
pub(crate) fn is_of_library(line: &SourceLine<'_>) -> bool {
    let start = match line.directory {
        Some(directory) if directory != "." => directory,
        _ => line.path,
    };
    let start = start.strip_prefix("./").unwrap_or(start);
    BEGINNINGS.iter().any(|part| begins_with(start, *part))
        || PARTS.iter().any(|part| has_part(line, *part))
}

/// Whether a path begins with some of its parts.
fn begins_with(path: &str, part: &str) -> bool {
    match path.strip_prefix(part) {
        Some(rest) => rest.is_empty() || rest.starts_with('/'),
        None => false,
    }
}

/// Whether the path of a line's file, or the directory that it goes out from, has some parts.
fn has_part(line: &SourceLine<'_>, part: &str) -> bool {
    let is_in_directory = match line.directory {
        Some(directory) => is_in_path(directory, part),
        None => false,
    };
    is_in_directory || is_in_path(line.path, part)
}

/// Whether a path has some parts, one after another, where their text is in it first.
fn is_in_path(path: &str, part: &str) -> bool {
    match path.split_once(part) {
        Some((front, rest)) => {
            let is_start = front.is_empty() || front.ends_with('/');
            is_start && (rest.is_empty() || rest.starts_with('/'))
        }
        None => false,
    }
}
