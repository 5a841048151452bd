// What the commands are.
use crate::output::tell;
use std::io;

pub(crate) fn help(rt: &impl Print) -> io::Result<()> {
    tell(
        rt,
        b"r                the pane: registers, shadows, flags, size, granted cycles, the transfer
m ADDR [END]     bytes of the bus; ms ADDR [END] of the storage
> ADDR BYTE..    put bytes on the bus; >s ADDR BYTE.. in the storage
w ADDR BYTE..    write registers, one after another: w DF02 00 10; rd ADDR reads one
ff00             the processor writes to FF00: an armed command starts
z [N]            N cycles (1): BA, grant, access, tops passed, stores and changes of each
g [LIMIT]        cycles until the command ends, at most LIMIT (40000), tops passed, stores",
    )?;
    tell(
        rt,
        b"ba PATTERN       BA of the next cycles, a letter each: h high, l low,
                 f falls (low, but high at phi1), r rises (high, but low at phi1),
                 0 to 7 the inputs: 4 ba_high, 2 ba_high_phi1, 1 ba_low
cycle [N]        the number of the next cycle: says it, or sets it
enable, disable  the expansion's switch; the first enabling attaches the storage, all 00
size KIB         the storage's size, 128, 256 or 512 (KiB), before the first enabling
reset            the reset line; new: a new machine, every byte 00
save FILE        the image to FILE, the bus to FILE.bus, the storage to FILE.storage
open FILE        the same three back; beside FILE: the saved pane beside the live one
help, q          this; the end
Numbers are hexadecimal, $ optional; decimal with a leading +. # starts a comment.",
    )
}
