//! Setup packets, as section 9.3 of the USB 2.0 specification lays them out.
ghost use Rattle.std.specs.Prelude.{◌≡◌};
ghost use Rattle.usb_ctrl.specs.Setup.{setup_of, bytes_of};

/// What a control transfer asks of a device.
#[derive(Clone, Copy, Debug, PartialEq)]
pub struct Setup {
    /// bmRequestType: bit 7 is set where the data come in.
    pub kind: u8,
    pub request: u8,
    pub value: u16,
    pub index: u16,
    /// How many bytes of data follow, at most.
    pub length: u16,
}

impl Setup {
    /// The packet that eight bytes are.
    pub fn read(b: [u8; 8]) -> Setup
        ensures { result ≡ setup_of b }
    {
        Setup {
            kind: b[0],
            request: b[1],
            value: u16::from_le_bytes([b[2], b[3]]),
            index: u16::from_le_bytes([b[4], b[5]]),
            length: u16::from_le_bytes([b[6], b[7]]),
        }
    }

    /// Its eight bytes.
    pub fn write(self) -> [u8; 8]
        ensures { result ≡ bytes_of self }
    {
        let [v0, v1] = self.value.to_le_bytes();
        let [i0, i1] = self.index.to_le_bytes();
        let [l0, l1] = self.length.to_le_bytes();
        [self.kind, self.request, v0, v1, i0, i1, l0, l1]
    }
}
