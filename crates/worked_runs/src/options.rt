//! The options of a conversion, each on a small object, with the whole output or the refusal.
use crate::rows::Row;

static ROWS: [Row; 22] = [
    Row {
        name: "a function gets another name",
        words: &["-felf32", "-nr:main:start", "a", "b"],
        input: "call.o",
        want: "call_renamed.o",
    },
    Row {
        name: "another prefix",
        words: &["-felf32", "-np:ma:pa", "a", "b"],
        input: "call.o",
        want: "call_by_prefix.o",
    },
    Row {
        name: "another suffix",
        words: &["-felf32", "-ns:in:de", "a", "b"],
        input: "call.o",
        want: "call_by_suffix.o",
    },
    Row {
        name: "a further name",
        words: &["-felf32", "-ar:main:start", "a", "b"],
        input: "call.o",
        want: "call_with_start.o",
    },
    Row {
        name: "a further name with another prefix",
        words: &["-felf32", "-ap:ma:pa", "a", "b"],
        input: "call.o",
        want: "call_with_pain.o",
    },
    Row {
        name: "a further name with another suffix",
        words: &["-felf32", "-as:in:de", "a", "b"],
        input: "call.o",
        want: "call_with_made.o",
    },
    Row {
        name: "a function from outside may be missing",
        words: &["-felf32", "-nw:foo", "a", "b"],
        input: "call.o",
        want: "call_of_a_weak.o",
    },
    Row {
        name: "a function can be overridden",
        words: &["-felf32", "-nw:main", "a", "b"],
        input: "call.o",
        want: "call_in_a_weak.o",
    },
    Row {
        name: "a function is hidden",
        words: &["-felf32", "-nl:main", "a", "b"],
        input: "call.o",
        want: "call_in_a_local.o",
    },
    Row {
        name: "underscores",
        words: &["-fcoff32", "-nu", "a", "b"],
        input: "call.o",
        want: "call_underscores.obj",
    },
    Row {
        name: "debugging information is stripped",
        words: &["-felf32", "--strip-debug", "a", "b"],
        input: "call_debug_exception.o",
        want: "call_exception.o",
    },
    Row {
        name: "exception tables are stripped",
        words: &["-felf32", "--strip-exceptions", "a", "b"],
        input: "call_debug_exception.o",
        want: "call_debug.o",
    },
    Row {
        name: "both are stripped",
        words: &["-felf32", "--strip-exceptions", "--strip-debug", "a", "b"],
        input: "call_debug_exception.o",
        want: "call.o",
    },
    Row {
        name: "both are kept",
        words: &["-felf32", "--keep-debug", "--keep-exceptions", "a", "b"],
        input: "call_debug_exception.o",
        want: "call_debug_exception.o",
    },
    Row {
        name: "exception tables are kept across formats",
        words: &["-fcoff32", "--keep-exceptions", "a", "b"],
        input: "call_debug_exception.o",
        want: "call_exception.obj",
    },
    Row {
        name: "both are dropped across formats",
        words: &["-fcoff32", "a", "b"],
        input: "call_debug_exception.o",
        want: "elf32_call_to_coff32.obj",
    },
    Row {
        name: "underscores, a prefix and a further name",
        words: &[
            "-fmac64",
            "-nu",
            "-np:my_:your_",
            "-ar:my_f:start",
            "a",
            "b",
        ],
        input: "underscores_prefix_and_alias.o",
        want: "underscores_prefix_and_alias.out.o",
    },
    Row {
        name: "the key of a group follows its symbol",
        words: &["-felf32", "-nr:t:u", "a", "b"],
        input: "elf32_group.o",
        want: "elf32_group.renamed.o",
    },
    Row {
        name: "an object of gcc with underscores",
        words: &["-fmac64", "-nu", "a", "b"],
        input: "gcc_object_to_mac64.o",
        want: "gcc_object_to_mac64.underscores.o",
    },
    Row {
        name: "a name that is there",
        words: &["-fcoff32", "-nr:a:b", "a", "b"],
        input: "rename_clash.o",
        want: "",
    },
    Row {
        name: "a group whose key became weak",
        words: &["-fcoff32", "-nw:t", "a", "b"],
        input: "elf32_group.o",
        want: "",
    },
    Row {
        name: "exception tables that the target cannot have",
        words: &["-felf64", "--keep-exceptions", "a", "b"],
        input: "msvc_object_to_elf64.obj",
        want: "",
    },
];

/// The rows.
pub fn options() -> &'static [Row] {
    &ROWS
}
