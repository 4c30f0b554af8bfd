//! Functions that are no coroutines break no rule, once their resumes, destroys, tests and promises are turned.
