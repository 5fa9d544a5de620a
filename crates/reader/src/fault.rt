// Why a reader gives no more bytes.

#[derive(Clone, Copy, PartialEq, Eq, Debug)]
pub enum ReadFault {
    // the bytes end
    Short,
    // a device gave up, with its code
    Device(u16),
}
