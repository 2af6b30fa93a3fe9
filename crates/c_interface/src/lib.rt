// The public functions for C: each calls the function of its entry crate, and tells the answer as one number. The meaning is in specs/ of the
// entry crates and of `c_answers`. `c_interface_c` exports each under its name.
#![tactic(auto)]

ghost use Rattle.std.specs.Prelude.{◌≡◌, length};
ghost use Rattle.answers.specs.Answers.{memory_limit, memory, answer_of, Delivers};
ghost use Rattle.report_theory.specs.Answers.{bound_answer, merge_answer, run_answer};
ghost use Rattle.report_theory.specs.Promises.{SafeReport, ExactReport, SafeMerge, ExactMerge, AboveMerge, WithinReport, RunAccepted};
ghost use Rattle.report_theory.specs.Listed.{BoundRefused, MergeRefused, RunRefused, ListedAlone};
ghost use Rattle.report_theory.specs.Refined.{MonotoneReport, KnownReport, MonotoneMerge, KnownMerge};
ghost use Rattle.preview_entry.specs.Answers.{preview_answer};
ghost use Rattle.words_entry.specs.Answers.{conversion_limit, import_answer, export_answer};
ghost use Rattle.replay_entry.specs.Answers.{replay_answer};
ghost use Rattle.replay_entry.specs.Promises.{ReplayKept};
ghost use Rattle.split_entry.specs.Answers.{split_answer};
ghost use Rattle.split_entry.specs.Promises.{SafeSplit, ExactSplit, BelowMerge, MoreCuts, MonotoneSplit};
ghost use Rattle.split_entry.specs.Listed.{CasesRefused};
ghost use Rattle.explain_entry.specs.Answers.{explanation_limit, explain_answer};
ghost use Rattle.explain_merge_entry.specs.Answers.{explain_merge_answer};
ghost use Rattle.decide_entry.specs.Answers.{decide_answer};
ghost use Rattle.decide_entry.specs.Promises.{KeepsTick, OverTick, UndecidedTick};
ghost use Rattle.decide_split_entry.specs.Answers.{decide_split_answer};
ghost use Rattle.decide_split_entry.specs.Promises.{KeepsTickByCases, UndecidedByCases};
ghost use Rattle.trace_entry.specs.Answers.{trace_memory, trace_answer};
ghost use Rattle.trace_entry.specs.Promises.{TracesRun};
ghost use Rattle.nearest_entry.specs.Answers.{nearest_answer};
ghost use Rattle.generate_entry.specs.Answers.{generator_limit, generate_answer};
ghost use Rattle.c_answers.specs.Told.{word_of, told_length, Tells, RefusesWord};

// `bound_entry::bound` for C: see include/tickbound.h.
pub fn tickbound_bound(text: &[u8], out: &mut [u8]) -> u64
    ensures value { result ≡ word_of (answer_of (bound_answer text.now (length out.old))) }
    ensures out_after { out.new ≡ memory (bound_answer text.now (length out.old)) out.old }
    ensures tells { Tells memory_limit (bound_answer text.now (length out.old)) result }
    ensures safe { Delivers (told_length result) out.new (SafeReport text.now) }
    ensures exact { Delivers (told_length result) out.new (ExactReport text.now) }
    ensures monotone { Delivers (told_length result) out.new (MonotoneReport text.now) }
    ensures known { Delivers (told_length result) out.new (KnownReport text.now) }
    ensures listed { ListedAlone (RefusesWord result) (BoundRefused text.now (length out.old)) }
{
    let answer = bound_entry::bound(text, out);
    c_answers::word_of(answer)
}

// `merge_entry::merge` for C.
pub fn tickbound_merge(text: &[u8], out: &mut [u8]) -> u64
    ensures value { result ≡ word_of (answer_of (merge_answer text.now (length out.old))) }
    ensures out_after { out.new ≡ memory (merge_answer text.now (length out.old)) out.old }
    ensures tells { Tells memory_limit (merge_answer text.now (length out.old)) result }
    ensures safe { Delivers (told_length result) out.new (SafeMerge text.now) }
    ensures exact { Delivers (told_length result) out.new (ExactMerge text.now) }
    ensures monotone { Delivers (told_length result) out.new (MonotoneMerge text.now) }
    ensures known { Delivers (told_length result) out.new (KnownMerge text.now) }
    ensures above { Delivers (told_length result) out.new (AboveMerge text.now) }
    ensures listed { ListedAlone (RefusesWord result) (MergeRefused text.now (length out.old)) }
{
    let answer = merge_entry::merge(text, out);
    c_answers::word_of(answer)
}

// `run_entry::run` for C.
pub fn tickbound_run(text: &[u8], out: &mut [u8]) -> u64
    ensures value { result ≡ word_of (answer_of (run_answer text.now (length out.old))) }
    ensures out_after { out.new ≡ memory (run_answer text.now (length out.old)) out.old }
    ensures tells { Tells memory_limit (run_answer text.now (length out.old)) result }
    ensures within { Delivers (told_length result) out.new (WithinReport text.now) }
    ensures accepts { RunAccepted text.now (length out.old) (told_length result) }
    ensures listed { ListedAlone (RefusesWord result) (RunRefused text.now (length out.old)) }
{
    let answer = run_entry::run(text, out);
    c_answers::word_of(answer)
}

// `words_entry::import` for C.
pub fn tickbound_import(words: &[u8], primitives: &[u8], out: &mut [u8]) -> u64
    ensures value { result ≡ word_of (answer_of (import_answer words.now primitives.now (length out.old))) }
    ensures out_after { out.new ≡ memory (import_answer words.now primitives.now (length out.old)) out.old }
    ensures tells { Tells conversion_limit (import_answer words.now primitives.now (length out.old)) result }
{
    let imported = words_entry::import(words, primitives, out);
    c_answers::word_of(imported)
}

// `words_entry::export` for C.
pub fn tickbound_export(text: &[u8], out: &mut [u8]) -> u64
    ensures value { result ≡ word_of (answer_of (export_answer text.now (length out.old))) }
    ensures out_after { out.new ≡ memory (export_answer text.now (length out.old)) out.old }
    ensures tells { Tells conversion_limit (export_answer text.now (length out.old)) result }
{
    let exported = words_entry::export(text, out);
    c_answers::word_of(exported)
}

// `replay_entry::replay` for C.
pub fn tickbound_replay(text: &[u8], trace: &[u8], out: &mut [u8]) -> u64
    ensures value { result ≡ word_of (answer_of (replay_answer text.now trace.now (length out.old))) }
    ensures out_after { out.new ≡ memory (replay_answer text.now trace.now (length out.old)) out.old }
    ensures tells { Tells memory_limit (replay_answer text.now trace.now (length out.old)) result }
    ensures kept { Delivers (told_length result) out.new (ReplayKept text.now trace.now) }
{
    let replayed = replay_entry::replay(text, trace, out);
    c_answers::word_of(replayed)
}

// `split_entry::split` for C.
pub fn tickbound_split(text: &[u8], cuts: &[u8], out: &mut [u8]) -> u64
    ensures value { result ≡ word_of (answer_of (split_answer text.now cuts.now (length out.old))) }
    ensures out_after { out.new ≡ memory (split_answer text.now cuts.now (length out.old)) out.old }
    ensures tells { Tells memory_limit (split_answer text.now cuts.now (length out.old)) result }
    ensures safe { Delivers (told_length result) out.new (SafeSplit text.now cuts.now) }
    ensures exact { Delivers (told_length result) out.new (ExactSplit text.now cuts.now) }
    ensures below { Delivers (told_length result) out.new (BelowMerge text.now cuts.now) }
    ensures more { Delivers (told_length result) out.new (MoreCuts text.now cuts.now) }
    ensures monotone { Delivers (told_length result) out.new (MonotoneSplit text.now cuts.now) }
    ensures listed { ListedAlone (RefusesWord result) (CasesRefused text.now cuts.now (length out.old)) }
{
    let bounded = split_entry::split(text, cuts, out);
    c_answers::word_of(bounded)
}

// `preview_entry::preview` for C.
pub fn tickbound_preview(text: &[u8], address: u32, instruction: &[u8], out: &mut [u8]) -> u64
    ensures value { result ≡ word_of (answer_of (preview_answer text.now address instruction.now (length out.old))) }
    ensures out_after { out.new ≡ memory (preview_answer text.now address instruction.now (length out.old)) out.old }
    ensures tells { Tells memory_limit (preview_answer text.now address instruction.now (length out.old)) result }
{
    let previewed = preview_entry::preview(text, address, instruction, out);
    c_answers::word_of(previewed)
}

// `nearest_entry::nearest` for C.
pub fn tickbound_nearest(text: &[u8], out: &mut [u8]) -> u64
    ensures value { result ≡ word_of (answer_of (nearest_answer text.now (length out.old))) }
    ensures out_after { out.new ≡ memory (nearest_answer text.now (length out.old)) out.old }
    ensures tells { Tells memory_limit (nearest_answer text.now (length out.old)) result }
{
    let nearest = nearest_entry::nearest(text, out);
    c_answers::word_of(nearest)
}

// `generate_entry::generate` for C.
pub fn tickbound_generate(seed: u32, out: &mut [u8]) -> u64
    ensures value { result ≡ word_of (answer_of (generate_answer seed (length out.old))) }
    ensures out_after { out.new ≡ memory (generate_answer seed (length out.old)) out.old }
    ensures tells { Tells generator_limit (generate_answer seed (length out.old)) result }
{
    let generated = generate_entry::generate(seed, out);
    c_answers::word_of(generated)
}

// `explain_entry::explain` for C.
pub fn tickbound_explain(text: &[u8], out: &mut [u8]) -> u64
    ensures value { result ≡ word_of (answer_of (explain_answer text.now (length out.old))) }
    ensures out_after { out.new ≡ memory (explain_answer text.now (length out.old)) out.old }
    ensures tells { Tells explanation_limit (explain_answer text.now (length out.old)) result }
{
    let explained = explain_entry::explain(text, out);
    c_answers::word_of(explained)
}

// `explain_merge_entry::explain_merge` for C.
pub fn tickbound_explain_merge(text: &[u8], out: &mut [u8]) -> u64
    ensures value { result ≡ word_of (answer_of (explain_merge_answer text.now (length out.old))) }
    ensures out_after { out.new ≡ memory (explain_merge_answer text.now (length out.old)) out.old }
    ensures tells { Tells explanation_limit (explain_merge_answer text.now (length out.old)) result }
{
    let explained = explain_merge_entry::explain_merge(text, out);
    c_answers::word_of(explained)
}

// `decide_entry::decide` for C.
pub fn tickbound_decide(text: &[u8], out: &mut [u8]) -> u64
    ensures value { result ≡ word_of (answer_of (decide_answer text.now (length out.old))) }
    ensures out_after { out.new ≡ memory (decide_answer text.now (length out.old)) out.old }
    ensures tells { Tells memory_limit (decide_answer text.now (length out.old)) result }
    ensures keeps { Delivers (told_length result) out.new (KeepsTick text.now) }
    ensures over { Delivers (told_length result) out.new (OverTick text.now) }
    ensures undecided { Delivers (told_length result) out.new (UndecidedTick text.now) }
{
    let decided = decide_entry::decide(text, out);
    c_answers::word_of(decided)
}

// `decide_split_entry::decide_split` for C.
pub fn tickbound_decide_split(text: &[u8], cuts: &[u8], out: &mut [u8]) -> u64
    ensures value { result ≡ word_of (answer_of (decide_split_answer text.now cuts.now (length out.old))) }
    ensures out_after { out.new ≡ memory (decide_split_answer text.now cuts.now (length out.old)) out.old }
    ensures tells { Tells memory_limit (decide_split_answer text.now cuts.now (length out.old)) result }
    ensures keeps { Delivers (told_length result) out.new (KeepsTickByCases text.now cuts.now) }
    ensures undecided { Delivers (told_length result) out.new (UndecidedByCases text.now cuts.now) }
{
    let decided = decide_split_entry::decide_split(text, cuts, out);
    c_answers::word_of(decided)
}

// `trace_entry::trace` for C.
pub fn tickbound_trace(text: &[u8], out: &mut [u8]) -> u64
    ensures value { result ≡ word_of (answer_of (trace_answer text.now (length out.old))) }
    ensures out_after { out.new ≡ memory (trace_answer text.now (length out.old)) out.old }
    ensures tells { Tells trace_memory (trace_answer text.now (length out.old)) result }
    ensures traces { Delivers (told_length result) out.new (TracesRun text.now) }
{
    let traced = trace_entry::trace(text, out);
    c_answers::word_of(traced)
}
