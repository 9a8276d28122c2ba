/// The sizes and offsets of a stack frame.
#[derive(Clone, Copy, PartialEq, Eq, Debug)]
pub struct Frame {
    pub incoming_args_size: u32,
    pub clobber_size: u32,
    pub fixed_frame_storage_size: u32,
    pub stackslots_size: u32,
    pub outgoing_args_size: u32,
    pub nominal_sp_offset: u32,
    pub outgoing_sp_offset: u32,
}

impl Frame {
    /// A frame with nothing in it.
    pub const EMPTY: Frame = Frame {
        incoming_args_size: 0,
        clobber_size: 0,
        fixed_frame_storage_size: 0,
        stackslots_size: 0,
        outgoing_args_size: 0,
        nominal_sp_offset: 0,
        outgoing_sp_offset: 0,
    };
}
