//! Cuttings: the number of pieces into which some work is cut, and the number of workers that share them.
ghost use Rattle.std.specs.Prelude.{◌≡◌, IfOk, OnOk, IsErrOf};
ghost use Rattle.snap_threads.specs.Cuttings.{IsPieces, IsWorkers};

/// The most pieces of a cutting.
pub const PIECE_LIMIT: u32 = 1024;

/// The most workers of a cutting.
pub const WORKER_LIMIT: u32 = 8;

/// Why there is no such cutting, in the order in which the reasons are tested.
#[derive(Clone, Copy, PartialEq, Eq, Debug)]
pub enum CuttingRefusal {
    /// Not 1 to `PIECE_LIMIT` pieces.
    Pieces,
    /// Not 1 to `WORKER_LIMIT` workers.
    Workers,
}

/// The number of pieces into which some work is cut, and the number of workers that share them.
#[derive(Clone, Copy, PartialEq, Eq, Debug)]
pub struct Cutting {
    pieces: u32,
    workers: u32,
    ghost pieces_fit: { IsPieces pieces },
    ghost workers_fit: { IsWorkers workers },
}

impl Cutting {
    /// The cutting into 1 to `PIECE_LIMIT` pieces for 1 to `WORKER_LIMIT` workers.
    pub fn new(pieces: u32, workers: u32) -> Result<Cutting, CuttingRefusal>
        ensures ok { IfOk result (λ cutting. (cutting.pieces ≡ pieces) × (cutting.workers ≡ workers)) }
        ensures accepted { OnOk result (IsPieces pieces × IsWorkers workers) }
        ensures pieces { IsErrOf result CuttingRefusal.Pieces → ¬ IsPieces pieces }
        ensures workers { IsErrOf result CuttingRefusal.Workers → IsPieces pieces × ¬ IsWorkers workers }
    {
        if !(1..=PIECE_LIMIT).contains(&pieces) {
            return Err(CuttingRefusal::Pieces);
        }
        if !(1..=WORKER_LIMIT).contains(&workers) {
            return Err(CuttingRefusal::Workers);
        }
        Ok(Cutting { pieces, workers })
    }

    /// The cutting if none is asked for: 8 pieces for 2 workers.
    pub fn usual() -> Cutting
        ensures { (result.pieces ≡ 8) × (result.workers ≡ 2) }
    {
        Cutting {
            pieces: 8,
            workers: 2,
        }
    }

    /// The number of pieces, 1 to `PIECE_LIMIT`.
    pub fn pieces(&self) -> u32
        ensures { result ≡ self.now.pieces }
    {
        self.pieces
    }

    /// The number of workers, 1 to `WORKER_LIMIT`.
    pub fn workers(&self) -> u32
        ensures { result ≡ self.now.workers }
    {
        self.workers
    }
}
