//! Load commands: what all of them begin with.
ghost use Rattle.std.specs.Prelude.{◌≡◌, ◌+◌, ◌≤◌, length};
ghost use Rattle.oc_macho.specs.LoadCommand as command;
ghost use Rattle.oc_macho.specs.declared.load_command.TheConstants.{LOAD_COMMAND_SIZE};

use oc_base::u32_in;

/// How many bytes each load command has at least (Mach-O reference, "load_command").
pub const LOAD_COMMAND_SIZE: usize = 8;

/// The size of an `LC_DYSYMTAB` command, in bytes (Mach-O reference, "dysymtab_command").
pub const DYSYMTAB_COMMAND_SIZE: u32 = 80;

/// What a load command begins with (Mach-O reference, "load_command").
#[derive(Clone, Copy, Debug, PartialEq, Eq)]
pub struct LoadCommand {
    /// One of the constants `LC_*`, or another command, which is passed over.
    pub cmd: u32,
    /// How many bytes the command has, these included.
    pub cmdsize: u32,
}

/// The load command at `at`, an offset in the file. Constant time.
#[tactic(auto, unfolding(crate::specs::LoadCommand::load_command_at))]
pub fn load_command_at(file: &[u8], at: usize) -> LoadCommand
    requires { at + LOAD_COMMAND_SIZE ≤ length file.now }
    ensures { result ≡ command.load_command_at file.now at }
{
    LoadCommand {
        cmd: u32_in(file, at),
        cmdsize: u32_in(file, at + 4),
    }
}
