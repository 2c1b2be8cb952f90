//! The command that places symbols and strings.
ghost use Rattle.std.specs.Prelude.{◌≡◌, ◌+◌, ◌≤◌, length};
ghost use Rattle.oc_macho.specs.SymtabCommand as symtab;
ghost use Rattle.oc_macho.specs.declared.symtab_command.TheConstants.{SYMTAB_COMMAND_SIZE};

use oc_base::u32_in;

/// The size of the command, in bytes (Mach-O reference, "symtab_command").
pub const SYMTAB_COMMAND_SIZE: usize = 24;

/// Where symbols and strings are, without what all commands begin with (Mach-O reference,
/// "symtab_command").
#[derive(Clone, Copy, Debug, PartialEq, Eq)]
pub struct SymtabCommand {
    /// Where the symbols begin, in bytes from the start of the file.
    pub symoff: u32,
    /// How many symbols there are.
    pub nsyms: u32,
    /// Where the strings begin, in bytes from the start of the file.
    pub stroff: u32,
    /// How many bytes the strings have.
    pub strsize: u32,
}

/// The command that places symbols and strings at `at`, an offset in the file. Constant time.
#[tactic(auto, unfolding(crate::specs::SymtabCommand::symtab_command_at))]
pub fn symtab_command_at(file: &[u8], at: usize) -> SymtabCommand
    requires { at + SYMTAB_COMMAND_SIZE ≤ length file.now }
    ensures { result ≡ symtab.symtab_command_at file.now at }
{
    SymtabCommand {
        symoff: u32_in(file, at + 8),
        nsyms: u32_in(file, at + 12),
        stroff: u32_in(file, at + 16),
        strsize: u32_in(file, at + 20),
    }
}
