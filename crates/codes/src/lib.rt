// The results of the exported functions: 0 or a reason.
#![tactic(auto)]

// It is done, and the value is written.
pub const RF_DONE: u32 = 0;
// So many words are no full tree.
pub const RF_NOT_FULL: u32 = 1;
// No full tree has so many frames.
pub const RF_NO_SIZE: u32 = 2;
// There is no such frame.
pub const RF_OUTSIDE: u32 = 3;
// The range or the run has no frame.
pub const RF_EMPTY: u32 = 4;
// The range ends before it starts.
pub const RF_REVERSED: u32 = 5;
// No frame, or no such run of frames, is free; or no slot of the set.
pub const RF_NO_ROOM: u32 = 6;
// The frame is free already.
pub const RF_NOT_TAKEN: u32 = 7;
// A summary does not agree with what it summarises, or the memories are not sound.
pub const RF_CORRUPT: u32 = 8;
// There are not as many bytes of owners as frames.
pub const RF_UNMATCHED: u32 = 9;
// The base is no multiple of 4096.
pub const RF_BAD_BASE: u32 = 10;
// Clients are numbered 0 to 63.
pub const RF_NO_CLIENT: u32 = 11;
// The address is below the base.
pub const RF_BELOW: u32 = 12;
// The address is not the first of a frame.
pub const RF_NOT_AT_FRAME: u32 = 13;
// The frame is another client's, or reserved.
pub const RF_NOT_YOURS: u32 = 14;
// There are not so many frames.
pub const RF_TOO_MANY: u32 = 15;
// A frame would end past 2^64 - 1.
pub const RF_TOO_HIGH: u32 = 16;
// A client owns the frame.
pub const RF_TAKEN: u32 = 17;
// The bit and the byte of the frame are not in order.
pub const RF_WRONG: u32 = 18;
// The contents are not those of whole frames, or of more than there are.
pub const RF_UNBACKED: u32 = 19;
// The frame has no contents.
pub const RF_BEYOND: u32 = 20;
// The frame is free and not empty.
pub const RF_DIRTY: u32 = 21;
// The words are not as many as a table has.
pub const RF_NO_TABLE: u32 = 45;
// No machine of the configuration has the number.
pub const RF_NO_MACHINE: u32 = 48;
// The machine is there already.
pub const RF_PRESENT: u32 = 49;
// The machine is not there: it has not been added.
pub const RF_NOT_PRESENT: u32 = 50;
// The machine still has a region or a frame.
pub const RF_NOT_EMPTY: u32 = 51;
// The configuration does not give the machine that region.
pub const RF_NOT_GIVEN: u32 = 52;
// The region has a guest page in common with one of the set.
pub const RF_OVERLAP: u32 = 53;
// That very region is not in the set.
pub const RF_NOT_IN_SET: u32 = 54;
// No region of the set has the guest address.
pub const RF_NOT_MAPPED: u32 = 55;
// Kinds are numbered 0 to 2.
pub const RF_NO_KIND: u32 = 56;
// Sets are numbered 0 and 1.
pub const RF_NO_SET: u32 = 57;
// The machines' words are not as many as any number of slots gives.
pub const RF_ZONES: u32 = 58;
// A machine is given more regions than a set has slots.
pub const RF_FEW_SLOTS: u32 = 59;
// The allocator's region has more pages than there are frames.
pub const RF_POOL_TOO_LARGE: u32 = 60;
// More frames have contents than the allocator's region has pages.
pub const RF_FRAMES_TOO_MANY: u32 = 61;
// The bytes of a request mean no request.
pub const RF_MALFORMED: u32 = 62;
// The bytes are no sequence of calls.
pub const RF_BROKEN: u32 = 63;
// The memory lent for replies or answers has too few words.
pub const RF_FEW_WORDS: u32 = 64;
// The spare memory is not as long as the memory that it is to hold.
pub const RF_SPARE: u32 = 65;
// There is no such region.
pub const RF_NO_REGION: u32 = 66;
// There are more than 64 machines.
pub const RF_MANY_MACHINES: u32 = 67;
// A set has more than 32 slots.
pub const RF_MANY_SLOTS: u32 = 68;
