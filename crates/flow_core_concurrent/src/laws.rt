//! Laws of the core, for the proofs of runtimes. Each is a call that does nothing and ensures its law.
//! They hold of every sound plan and every meaning of it, of every good state, and of every seat.

ghost use Rattle.flow_core_concurrent.specs.Laws.{
  MeaningsAreFit,
  OpensGood,
  SplitKeepsGood,
  JoinKeepsGood,
  ClaimKeepsGood,
  StoreKeepsGood,
  SubKeepsGood,
  FinishKeepsGood,
  LookKeepsGood,
  StepsKeepGood,
  ReachedIsGood,
  ReadsTheMeaning,
  ReadsDecideTheEnd,
  StoresIntoEmpty,
  SubFindsItsCount,
  ClaimFindsItsCells,
  RunsAtMostOnce,
  RanAreFrames,
  RanAreFew,
  RanAreFewInAll,
  OpenIsNew,
  WaitingIsNew,
  IsMadeOnce,
  IsStoredOnce,
  StartedStays,
  WaitsNoMore,
  KnownWaitsNoMore,
  ChoicesAreSteps,
  StepsAreChoices,
  ChoicesAreWays,
  RunsAreConfluent,
  LeavesNothing,
};

/// A sound plan with its meaning under bodies that serve it is fit for all the laws.
pub fn meanings_are_fit()
    ensures { MeaningsAreFit }
{}

/// The state at opening is good.
pub fn opening_is_good()
    ensures { OpensGood }
{}

/// A SPLIT keeps a state good, and so does a JOIN.
pub fn seats_keep_good()
    ensures split { SplitKeepsGood }
    ensures join { JoinKeepsGood }
{}

/// A CLAIM keeps a state good, whether it finds its frame Open or not.
pub fn claim_keeps_good()
    ensures { ClaimKeepsGood }
{}

/// A STORE keeps a state good, and so does a SUB.
pub fn delivery_keeps_good()
    ensures store { StoreKeepsGood }
    ensures sub { SubKeepsGood }
{}

/// A FINISH keeps a state good.
pub fn finish_keeps_good()
    ensures { FinishKeepsGood }
{}

/// A LOOK keeps a state good, whether it finds its frame Open or not.
pub fn look_keeps_good()
    ensures { LookKeepsGood }
{}

/// Every step keeps a state good, so every state that steps reach from opening is good.
pub fn steps_keep_good()
    ensures step { StepsKeepGood }
    ensures reached { ReachedIsGood }
{}

/// A READ gives the meaning's element, a value or poison, and what a frame reads decides the end that it finishes with.
pub fn read_gives_the_meaning()
    ensures element { ReadsTheMeaning }
    ensures end { ReadsDecideTheEnd }
{}

/// A STORE finds its cell empty, and has an element for it, whatever the end of its frame is.
pub fn store_finds_empty()
    ensures { StoresIntoEmpty }
{}

/// A SUB finds a frame that waits for at least as many elements as come.
pub fn sub_finds_its_count()
    ensures { SubFindsItsCount }
{}

/// A CLAIM that succeeds finds every cell of its frame filled, and on every way from opening a cell is
/// stored into once at most.
pub fn claim_finds_its_cells()
    ensures cells { ClaimFindsItsCells }
    ensures stored { IsStoredOnce }
{}

/// Each frame runs at most once, and is never Open again once it was claimed.
pub fn runs_at_most_once()
    ensures once { RunsAtMostOnce }
    ensures new { OpenIsNew }
    ensures stays { StartedStays }
{}

/// What seats ran are frames of the plan, and they ran no more of them than it has, each seat and all together.
pub fn ran_frames_are_few()
    ensures frames { RanAreFrames }
    ensures each { RanAreFew }
    ensures all { RanAreFewInAll }
{}

/// A frame that waited is made once. It never waits again, and a frame that a seat knows doesn't wait.
pub fn made_once()
    ensures once { IsMadeOnce }
    ensures new { WaitingIsNew }
    ensures stays { WaitsNoMore }
    ensures known { KnownWaitsNoMore }
{}

/// Whatever the order of the steps, the frames that were claimed ran in an order in which each was enabled.
/// So what they gave is the meaning's, and where nothing more is enabled it is the meaning.
pub fn confluence()
    ensures { RunsAreConfluent }
{}

/// Where the last seat runs nothing and has looked as often as there are frames, nothing is left out.
pub fn nothing_left()
    ensures { LeavesNothing }
{}

/// What a seat can choose are exactly the steps, so tables of choices are tables of steps.
pub fn choices_are_the_steps()
    ensures step { ChoicesAreSteps }
    ensures choice { StepsAreChoices }
    ensures way { ChoicesAreWays }
{}
