//! The texts of the prelude's headers.

ghost use Rattle.std.specs.Prelude.{◌≡◌, option_map};
ghost use Rattle.vf_threads.specs.Prelude.{text_of, threading, vf_arrays};

/// The null pointer.
const STDDEF: &[u8] = b"#define NULL 0\n";

/// Nothing: the words are keywords.
const STDBOOL: &[u8] = b"";

/// The null pointer and the end of a run.
const STDLIB: &[u8] = b"#define NULL 0\n\
void abort(); //@ requires true; ensures false;\n";

/// One byte of output.
const STDIO: &[u8] = b"int putchar(int c); //@ requires 0 <= c &*& c <= 255; ensures true;\n";

/// A number of output.
const VF_OUTPUT: &[u8] = b"void print_int(int x); //@ requires true; ensures true;\n";

/// Threads and mutexes.
const THREADING: &[u8] = b"struct mutex; struct thread;\n\
/*@ predicate_family thread_run_data(void *run)(void *d);\n\
predicate_family thread_run_pre(void *run)(void *d, any info);\n\
predicate_family thread_run_post(void *run)(void *d, any info);\n\
predicate thread(struct thread *t, void *run, void *d, any info);\n\
predicate mutex(struct mutex *m, predicate() p);\n\
predicate mutex_held(struct mutex *m, predicate() p, int id, real f);\n\
predicate create_mutex_ghost_arg(predicate() p) = true; @*/\n\
typedef void thread_run(void *d); //@ requires thread_run_data(this)(d); ensures true;\n\
typedef void thread_run_joinable(void *d);\n\
//@ requires thread_run_pre(this)(d, ?info); ensures thread_run_post(this)(d, info);\n\
void thread_start(void *run, void *d);\n\
//@ requires is_thread_run(run) == true &*& thread_run_data(run)(d); ensures true;\n\
struct thread *thread_start_joinable(void *run, void *d);\n\
//@ requires is_thread_run_joinable(run) == true &*& thread_run_pre(run)(d, ?info);\n\
//@ ensures thread(result, run, d, info);\n\
void thread_join(struct thread *t);\n\
//@ requires thread(t, ?run, ?d, ?info); ensures thread_run_post(run)(d, info);\n\
struct mutex *create_mutex();\n\
//@ requires create_mutex_ghost_arg(?p) &*& p(); ensures mutex(result, p);\n\
void mutex_acquire(struct mutex *m);\n\
//@ requires [?f]mutex(m, ?p); ensures mutex_held(m, p, currentThread, f) &*& p();\n\
void mutex_release(struct mutex *m);\n\
//@ requires mutex_held(m, ?p, currentThread, ?f) &*& p(); ensures [f]mutex(m, p);\n\
void mutex_dispose(struct mutex *m);\n\
//@ requires mutex(m, ?p); ensures p();\n";

/// Arrays of `int` in memory from `malloc`.
const VF_ARRAYS: &[u8] = b"/*@ inductive ints_list = ints_nil | ints_cons(int, ints_list);\n\
fixpoint int ints_nth(ints_list xs, int i) { switch (xs) { case ints_nil: return 0;\n\
\x20\x20case ints_cons(h, t): return (i == 0 ? h : ints_nth(t, i - 1)); } }\n\
fixpoint ints_list ints_set(ints_list xs, int i, int v) { switch (xs) {\n\
\x20\x20case ints_nil: return ints_nil;\n\
\x20\x20case ints_cons(h, t): return (i == 0 ? ints_cons(v, t) : ints_cons(h, ints_set(t, i - 1, v))); } }\n\
fixpoint ints_list ints_take(ints_list xs, int k) { switch (xs) { case ints_nil: return ints_nil;\n\
\x20\x20case ints_cons(h, t): return (k <= 0 ? ints_nil : ints_cons(h, ints_take(t, k - 1))); } }\n\
fixpoint ints_list ints_drop(ints_list xs, int k) { switch (xs) { case ints_nil: return ints_nil;\n\
\x20\x20case ints_cons(h, t): return (k <= 0 ? ints_cons(h, t) : ints_drop(t, k - 1)); } }\n\
fixpoint ints_list ints_append(ints_list xs, ints_list ys) { switch (xs) {\n\
\x20\x20case ints_nil: return ys; case ints_cons(h, t): return ints_cons(h, ints_append(t, ys)); } }\n\
predicate ints(int *p, int n, ints_list vs);\n\
predicate malloc_block_ints(int *p, int n);\n\
lemma void ints_none(int *p); requires true; ensures ints(p, 0, ints_nil);\n\
lemma void ints_split(int *p, int k); requires [?f]ints(p, ?n, ?vs) &*& 0 <= k &*& k <= n;\n\
\x20\x20ensures [f]ints(p, k, ints_take(vs, k)) &*& [f]ints(p + k, n - k, ints_drop(vs, k));\n\
lemma void ints_split_raw(int *p, int k); requires [?f]ints(p, ?n, _) &*& 0 <= k &*& k <= n;\n\
\x20\x20ensures [f]ints(p, k, _) &*& [f]ints(p + k, n - k, _);\n\
lemma void ints_join(int *p, int k); requires [?f]ints(p, k, ?a) &*& [f]ints(p + k, ?m, ?b);\n\
\x20\x20ensures [f]ints(p, k + m, ints_append(a, b));\n\
lemma void ints_join_raw(int *p, int k); requires [?f]ints(p, k, _) &*& [f]ints(p + k, ?m, _);\n\
\x20\x20ensures [f]ints(p, k + m, _); @*/\n";

/// The text of `threading.h`.
#[tactic(auto, unfolding(crate::specs::Prelude::threading))]
fn threading_text() -> &'static [u8]
    ensures { result.now ≡ threading }
{
    THREADING
}

/// The text of `vf_arrays.h`.
#[tactic(auto, unfolding(crate::specs::Prelude::vf_arrays))]
fn arrays_text() -> &'static [u8]
    ensures { result.now ≡ vf_arrays }
{
    VF_ARRAYS
}

/// The text of the prelude's header with this name, and nothing where the prelude has no such header.
#[tactic(auto, unfolding(crate::specs::Prelude::stddef, crate::specs::Prelude::stdbool, crate::specs::Prelude::stdlib, crate::specs::Prelude::stdio, crate::specs::Prelude::vf_output))]
pub fn prelude(name: &str) -> Option<&'static [u8]>
    ensures { option_map (λ text. text.now) result ≡ text_of name.now }
{
    match name {
        "stddef.h" => Some(STDDEF),
        "stdbool.h" => Some(STDBOOL),
        "stdlib.h" => Some(STDLIB),
        "stdio.h" => Some(STDIO),
        "vf_output.h" => Some(VF_OUTPUT),
        "threading.h" => Some(threading_text()),
        "vf_arrays.h" => Some(arrays_text()),
        _ => None,
    }
}
