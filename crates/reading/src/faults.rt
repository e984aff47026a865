// Why a line is not taken, and why a file is not read.
ghost use Rattle.std.specs.Prelude.{◌≡◌, None, Option, Some};
ghost use Rattle.std.proofs.Common.{rules};
ghost use Rattle.reading.specs.Taking.{in_file as file_fault_of};
ghost use Rattle.failures.specs.declared.Failure.TheVariants.{Refused, Memory};
ghost use Rattle.text.specs.declared.faults.FileFault.{FileFault};

use failures::Failure;
use text::faults::{FileFault, LineFault, Placed};

// Why a file is not read: a fault of the file, or what else can keep it from being read, such as want of memory.
pub trait Fault: From<FileFault> {
    // The fault of the file, where it is one.
    ghost file_fault: { Self → Option FileFault };

    // What `From` makes of a fault of the file tells that fault.
    ghost from_file_fault: { (fault : FileFault) (e : Self) → Self.from_gives fault e → file_fault e ≡ Some fault };
}

// Where no memory is needed, nothing but a fault of the file keeps it from being read.
impl Fault for FileFault {
    ghost file_fault = { Some };

    ghost from_file_fault = { Prim.search rules };
}

// Why a line is not taken. A type of its own beside `ReadFault`, so that no fault of a line is told without the number of
// that line.
pub type TakeFault = Failure<LineFault>;

// Why a file is not read.
pub type ReadFault = Failure<FileFault>;

impl Fault for ReadFault {
    ghost file_fault = { elim [ Refused fault ↦ Some fault | Memory ↦ None ] };

    ghost from_file_fault = { Prim.search rules };
}

// Why the file that has this line is not read. A match, since want of memory goes over as it is.
pub fn in_file(line: usize, why: TakeFault) -> ReadFault
    ensures the_fault_with_its_line { result ≡ file_fault_of line why }
{
    match why {
        TakeFault::Refused(fault) => ReadFault::Refused(FileFault::Line(Placed { line, fault })),
        TakeFault::Memory => ReadFault::Memory,
    }
}
