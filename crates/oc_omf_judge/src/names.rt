//! The names that entries define.
ghost use Rattle.std.specs.Prelude.{◌≡◌, ◌++◌, Bool, OnOk, IfErr, None};
ghost use Rattle.oc_base.specs.Stops.{IsStop};
ghost use Rattle.oc_linking.specs.FirstFault.{first_broken};
ghost use Rattle.oc_omf.specs.Cursor.{each_read, name_read};
ghost use Rattle.oc_omf_judge.specs.Defined.{IsStoppedOn, IsTakenOn};
ghost use Rattle.oc_omf.specs.Entries.{all_read};
ghost use Rattle.oc_omf.specs.Known.{names_of};
ghost use Rattle.oc_omf.specs.SectionFaults.{name_conditions};
ghost use Rattle.oc_omf.specs.declared.topics.Topic.TheVariants as topic;

use crate::defined::Defined;
use crate::section_stage::{EntryPlace, own_fault};
use oc_base::{Code, Stop, View};
use oc_omf::read_name;

/// Records the names in the contents of an entry, after others.
///
/// Stops exactly where the end of the contents cuts one, with the fault for that; or where memory
/// ran out. Linear in the contents.
pub(crate) fn take_names<'a>(
    names: &mut Vec<&'a [u8]>,
    spot: EntryPlace,
    contents: &View<'a>,
) -> Result<(), Stop>
    ensures clean { OnOk result (first_broken (name_conditions (spot.index, spot.place) (each_read name_read contents.now 0)) ≡ None) }
    ensures taken { OnOk result (names_of names.new.items ≡ names_of names.old.items ++ all_read (each_read name_read contents.now 0)) }
    ensures stop { IfErr result (IsStop (first_broken (name_conditions (spot.index, spot.place) (each_read name_read contents.now 0)))) }
{
    let mut at = 0;
    while at < contents.len() {
        match read_name(contents, at) {
            Ok((name, after)) => {
                names.push(name)?;
                at = after;
            }
            Err(_) => return Err(Stop::Refused(own_fault(spot, Code::BadName))),
        }
    }
    Ok(())
}

/// Judges the names in the contents of an entry, and takes them up.
///
/// Stops exactly where the end of the contents cuts one; or where memory ran out. Linear in the
/// contents.
pub(crate) fn take_name_entry<'a>(
    defined: &mut Defined<'a>,
    spot: EntryPlace,
    contents: &View<'a>,
) -> Result<(), Stop>
    ensures taken { OnOk result ((wide : Bool) → IsTakenOn defined.old spot topic.Names wide contents.now defined.new) }
    ensures stop { IfErr result (λ s. (wide : Bool) → IsStoppedOn defined.old spot topic.Names wide contents.now s) }
{
    match take_names(&mut defined.names, spot, contents) {
        Ok(()) => Ok(()),
        Err(stop) => Err(stop),
    }
}
