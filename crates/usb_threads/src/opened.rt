//! What a run begins with.

/// The seats of a host, of which none has made anything: main's, those of the threads in order, and those that no thread has,
/// with the server.
#[derive(Drop)]
pub struct Opened<S, P, V> {
    pub main: S,
    pub threads: Vec<S>,
    pub spare: P,
    pub server: V,
}
