// The state slice: its sizes, where each part begins, and the numbers and flags that its words hold.
#![tactic(auto)]

pub mod edge;
pub mod field;
pub mod index;
pub mod row;
pub mod setting;

/// Ids 0 to 63; 0 is the destination.
pub const IDS: usize = 64;

/// At most this many inputs and as many outputs a node.
pub const PORTS: usize = 8;

/// At most this many stored edges.
pub const EDGES: usize = 256;

/// At most this many slots in the pool.
pub const SLOTS: usize = 1024;

/// The highest channel ceiling.
pub const CHANNELS: usize = 32;

/// The samples of one channel in one quantum.
pub const QUANTUM: usize = 128;

/// The hidden input port, a number because the C boundary and the state write it so. An edge to it counts for ordering and carries no samples.
pub const HIDDEN: usize = 255;

/// The rows of one id: a row for each of its ports, the inputs first.
pub const NODE_ROWS: usize = 2 * PORTS;

/// The spare row, which stands after the rows of all ids.
pub const SPARE: usize = NODE_ROWS * IDS;

/// All rows, the spare one with them.
pub const ROWS: usize = SPARE + 1;

// The parts of the state. Four of them are lists with their length in a word elsewhere, because the host lends one slice of fixed length: the order,
// the muted list, the edges and the places of a row.
const HEADER_WORDS: usize = 16;

const NODE_WORDS: usize = 16;

const EDGE_WORDS: usize = 4;

const ORDER: usize = HEADER_WORDS;

const MUTED: usize = ORDER + IDS;

const NODE: usize = MUTED + IDS;

const EDGE: usize = NODE + NODE_WORDS * IDS;

const HOLDER: usize = EDGE + EDGE_WORDS * EDGES;

const CHANNEL: usize = HOLDER + SLOTS;

const PLACE: usize = CHANNEL + ROWS;

/// The one fixed length of the state slice, in words.
pub const STATE: usize = PLACE + CHANNELS * ROWS;

/// The state as the host lends it, once its length is known to be the one.
pub type Words = [u32; STATE];
