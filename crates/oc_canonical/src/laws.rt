//! Laws, for callers to cite. The functions do nothing.
ghost use Rattle.oc_canonical.specs.Stable.{CanonicalIsStable, CoffReadsBack, ElfReadsBack, FittedStays, MachReadsBack, OmfReadsBack};

/// Fitting leaves an object that is ready for the target.
pub fn fitted_stays()
    ensures { FittedStays }
{}

/// Where the canonical files of a format are read back, a conversion of each to its own format, with
/// nothing asked for, is not refused and gives it again.
pub fn canonical_is_stable()
    ensures { CanonicalIsStable }
{}

/// Canonical ELF files are read back: what is seen of an object that is ready is ready, has its file,
/// and is what that file shows.
pub fn elf_reads_back()
    ensures { ElfReadsBack }
{}

/// So are canonical COFF files.
pub fn coff_reads_back()
    ensures { CoffReadsBack }
{}

/// So are canonical Mach-O files.
pub fn mach_reads_back()
    ensures { MachReadsBack }
{}

/// So are canonical OMF modules, though OMF keeps no Debug sections.
pub fn omf_reads_back()
    ensures { OmfReadsBack }
{}
